//! The names of files, in groups with the same hash.

ghost use Rattle.std.specs.Prelude.{◌≡◌, List, [], ◌∷◌, ◌++◌, map, MatchResult, OnOk};
ghost use Rattle.std.specs.Prelude.{if◌then◌else◌, not};
ghost use Rattle.std.specs.List.{filter, list_any};
ghost use Rattle.gf_jobs.specs.Duplicates.{HashedFile, groups_text, has_two, name_lines, named_groups};
ghost use Rattle.gf_jobs.specs.Lines.{end_byte};
ghost use Rattle.gf_jobs.specs.inner.KeptNames.{IsKeptOf, KeptNames};

use crate::collections::name::push_name_line;
use crate::opening::list::end_byte;
use gf_run::{Answer, RunFault, answer_with};
use gf_words::LineEnd;
use indexmap::IndexSet;
use std::alloc::{AllocError, Global};
use std::marker::Model;

/// The names of files that were read, in groups with the same hash. This takes memory for the
/// hashes and for a reference to each name.
#[derive(Drop)]
pub struct Groups<'a> {
    /// The different hashes, in the order of the first files that have them.
    hashes: IndexSet<[u8; 32]>,
    /// For each of them, the names of its files.
    names: Vec<Vec<&'a str>>,
}

impl<'a> Model for Groups<'a> {
    ghost Value = { KeptNames };

    ghost view = { λ groups. record {
      hashes = groups.hashes.keys;
      names = map (λ group. map (λ name. name.now) group.items) groups.names.items;
    } };
}

/// Appends a line for each name, after an empty line unless these are the first ones.
fn push_group(
    text: &mut Vec<u8>,
    names: &[&str],
    end: LineEnd,
    first: bool,
) -> Result<(), AllocError>
    ensures { OnOk result (text.new.items ≡ text.old.items ++ (if first then [] else end_byte end ∷ [])
        ++ name_lines end (map (λ name. name.now) names.now)) }
{
    if !first {
        text.push(end_byte(end))?;
    }
    for name in names {
        push_name_line(text, b"", name, end)?;
    }
    Ok(())
}

impl<'a> Groups<'a> {
    /// No files yet.
    pub fn new(alloc: Global) -> Groups<'a>
        ensures { IsKeptOf [] result }
    {
        Groups {
            hashes: IndexSet::new(alloc),
            names: Vec::new(alloc),
        }
    }

    /// Puts the name of a file into the group of its hash, which is a new one if no file had it.
    pub fn push(&mut self, alloc: Global, name: &'a str, hash: [u8; 32]) -> Result<(), AllocError>
        ensures { OnOk result ((files : List HashedFile) → IsKeptOf files self.old
            → IsKeptOf (files ++ record { name = name.now; hash = hash } ∷ []) self.new) }
    {
        let (at, _) = self.hashes.insert_full(hash)?;
        match self.names.get_mut(at) {
            Some(group) => group.push(name)?,
            None => self.names.push(vec![in alloc; name]?)?,
        }
        Ok(())
    }

    /// Whether no two files have one hash; and the names of each group of two files or more, a line
    /// for each, with an empty line between two groups.
    pub fn text(&self, alloc: Global, end: LineEnd) -> Result<Answer<bool>, RunFault>
        ensures { (files : List HashedFile) → IsKeptOf files self.now → MatchResult result
            (λ answer. (answer.value ≡ not (list_any has_two (named_groups files)))
            × (answer.text.rest ≡ groups_text end (filter has_two (named_groups files))))
            (λ fault. fault ≡ RunFault.Memory) }
    {
        let mut text = Vec::new(alloc);
        let mut apart = true;
        for group in &self.names {
            if group.len() < 2 {
                continue;
            }
            push_group(&mut text, group.as_slice(), end, apart)?;
            apart = false;
        }
        Ok(answer_with(apart, text))
    }
}
