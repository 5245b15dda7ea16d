//! The arguments that the program was started with.

ghost use Rattle.std.specs.Prelude.{◌≡◌, IfOk, map};
ghost use Rattle.std.specs.String.{string_bytes};

use gf_words::{Request, WordsFault, parse_request};
use std::alloc::{AllocError, Global};
use std::env;
use std::env::FillError;
use std::io::ErrorKind;
use std::rt::Env;

const NOT_UTF8: &str = "error: an argument is not UTF-8\n\nFor more information, try '--help'.\n";

/// The arguments after the program's name. The name itself is left out, and may be any bytes.
#[derive(Drop)]
struct AfterName<'a, R> {
    rt: &'a R,
}

impl<R: Env> Env for AfterName<'_, R> {
    fn arg(&self, i: usize, buf: &mut [u8]) -> Result<usize, FillError> {
        match i.checked_add(1) {
            Some(place) => self.rt.arg(place, buf),
            None => Err(FillError::NotPresent),
        }
    }

    fn var(&self, name: &str, buf: &mut [u8]) -> Result<usize, FillError> {
        self.rt.var(name, buf)
    }

    fn var_at(&self, i: usize, buf: &mut [u8]) -> Result<usize, FillError> {
        self.rt.var_at(i, buf)
    }
}

/// Why there are no arguments. Those that are not UTF-8 are wrong usage.
fn no_arguments(alloc: Global, kind: ErrorKind) -> WordsFault {
    match (kind, String::from_str(alloc, NOT_UTF8)) {
        (ErrorKind::InvalidData, Ok(text)) => WordsFault::Usage(text),
        _ => WordsFault::Memory,
    }
}

fn arguments_given<R: Env>(rt: &R, alloc: Global) -> Result<Vec<String>, WordsFault> {
    match env::args(&(AfterName { rt }, alloc)) {
        Ok(arguments) => Ok(arguments.collect(alloc)?),
        Err(error) => Err(no_arguments(alloc, error.kind())),
    }
}

/// The words that the arguments are, in their order.
#[tactic(auto, using(std::proofs::lemmas::List::map_more, std::proofs::lemmas::List::take_all))]
fn words_of<'a>(alloc: Global, arguments: &'a [String]) -> Result<Vec<&'a str>, AllocError>
    ensures { IfOk result
        (λ words. map (λ word. word.now) words.items ≡ map string_bytes arguments.now) }
{
    let mut words = Vec::new(alloc);
    for argument in arguments {
        words.push(argument.as_str())?;
    }
    Ok(words)
}

/// What the program was started for.
pub fn request_given<R: Env + AllocGlobal>(rt: &R) -> Result<Request, WordsFault> {
    let arguments = arguments_given(rt, rt.alloc())?;
    let words = words_of(rt.alloc(), arguments.as_slice())?;
    parse_request(rt.alloc(), words.as_slice())
}
