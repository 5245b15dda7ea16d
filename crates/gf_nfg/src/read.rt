//! Strategic files as they are read from bytes.

ghost use Rattle.std.specs.Prelude.{◌≡◌, IfErr, IfOk, OnOk};
ghost use Rattle.gf_token.specs.declared.fault.Why.TheVariants.{Memory};
ghost use Rattle.gf_token.specs.ReadAs.{IsReadAs};
ghost use Rattle.gf_nfg.specs.TableText.{SpellsTable};
ghost use Rattle.gf_nfg.specs.inner.ToldTable.{HasToldTable};
ghost use Rattle.gf_nfg.specs.Limit.{IsWithinLimit};
ghost use Rattle.gf_nfg.specs.Judgement.{IsJudged};

use crate::heading::Heading;
use crate::listed::{ListedTable, Listing};
use crate::reader::Reader;
use crate::receive::{Kept, Receive, Unkept};
use crate::table::Table;
use gf_token::Fault;
use std::alloc::Global;

/// Reads a strategic file, and tells it to a receiver. Returns its heading.
///
/// # Errors
///
/// Those of `read_nfg`, also if the receiver is refused memory; the receiver has then been told a
/// part of the file.
pub(crate) fn tell_nfg<'a, R: Receive<'a>>(
    alloc: Global,
    input: &'a [u8],
    to: &mut R,
) -> Result<Heading<'a>, Fault>
    requires { R.untold to.old }
    ensures told { IfOk result (λ heading.
        HasToldTable (R.holds to.old) input.entry.now heading to.new) }
    ensures only { IfErr result (λ fault. (t : Table) → SpellsTable input.entry.now t
        → IsWithinLimit t → fault.why ≡ Memory) }
    ensures judged { IfErr result (λ fault. IsJudged fault.why input.entry.now fault.span) }
{
    let mut reader = Reader::new(alloc, input);
    reader.tell(to)?;
    Ok(reader.heading)
}

/// Whether bytes are a strategic file. Nothing of it is kept.
///
/// # Errors
///
/// Those of `read_nfg`; E19 if memory is refused for its players, or for the counts or labels of
/// their strategies.
pub fn check_nfg(alloc: Global, input: &[u8]) -> Result<(), Fault>
    ensures spelled { OnOk result ((t : Table) × SpellsTable input.now t × IsWithinLimit t) }
    ensures only { IfErr result (λ fault. (t : Table) → SpellsTable input.now t → IsWithinLimit t
        → fault.why ≡ Memory) }
    ensures judged { IfErr result (λ fault. IsJudged fault.why input.now fault.span) }
{
    let heading = tell_nfg(alloc, input, &mut Unkept)?;
    drop(heading);
    Ok(())
}

/// Reads the table of a strategic file from its bytes, in payoff version or in outcome version
/// (Gambit documentation, "Game representation formats"). The table has at most 1,048,576 profiles
/// (this project's profile), and the names of outcomes are not kept.
///
/// # Errors
///
/// A file is refused at the first token that cannot continue any strategic file, or at the end if
/// more is due. Spans are in bytes of the input, from 0. What is wrong there:
/// - E2: a text is unterminated; at its opening quote.
/// - E3: a token of the wrong kind, or the end.
/// - E4, E5, E6: a payoff is due, and a bare token does not spell a number, has a zero denominator,
///   needs more than 127 bits, or has too many digits after its point.
/// - E7: a count or the number of an outcome is due, and a bare token is not one.
/// - E15: the closing brace of a list without strategies.
/// - E16: the number of an outcome above the number of outcomes.
///
/// With E18, it is refused at the first count, or closing brace of a list, at which the product of
/// the numbers of strategies so far passes the limit.
///
/// E19 is returned if memory is refused, and only if there is nothing else to refuse: at the token
/// that needs it, if a strategic file begins with the tokens through that one and none of them
/// passes the limit; or at the end, if the bytes are a file within the limit.
pub fn read_nfg(alloc: Global, input: &[u8]) -> Result<Table, Fault>
    ensures spelled { IfOk result (λ t. SpellsTable input.now t) }
    ensures within { IfOk result (λ t. IsWithinLimit t) }
    ensures only { (t : Table) → SpellsTable input.now t → IsWithinLimit t → IsReadAs result t }
    ensures judged { IfErr result (λ fault. IsJudged fault.why input.now fault.span) }
{
    let mut kept = Kept::new(alloc);
    let heading = tell_nfg(alloc, input, &mut kept)?;
    let table = heading.table(alloc, kept);
    // A call is cheaper to check than the drop where the scope ends.
    drop(heading);
    match table {
        Ok(table) => Ok(table),
        Err(error) => Err(Fault::at_end(input.len(), error.into())),
    }
}

/// Reads a strategic file as `read_nfg` does, into a table that is only compared.
///
/// # Errors
///
/// Those of `read_nfg`.
pub fn list_nfg(alloc: Global, input: &[u8]) -> Result<ListedTable, Fault>
    ensures spelled { IfOk result (λ t. SpellsTable input.now t) }
    ensures within { IfOk result (λ t. IsWithinLimit t) }
    ensures only { (t : Table) → SpellsTable input.now t → IsWithinLimit t → IsReadAs result t }
    ensures judged { IfErr result (λ fault. IsJudged fault.why input.now fault.span) }
{
    let mut listing = Listing::new(alloc);
    let heading = tell_nfg(alloc, input, &mut listing)?;
    let table = ListedTable::told(alloc, &heading, listing);
    drop(heading);
    match table {
        Ok(table) => Ok(table),
        Err(error) => Err(Fault::at_end(input.len(), error.into())),
    }
}
