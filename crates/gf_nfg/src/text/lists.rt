//! Lists of labels in braces, which can be written in several parts.

ghost use Rattle.std.specs.Prelude.{◌≡◌, ◌+◌, ◌<◌, ◌≤◌, ◌^◌, ◌++◌, [], IfOk, OnErr, false, length};
ghost use Rattle.std.specs.Prelude.{vec_capacity, vec_len};
ghost use Rattle.gf_nfg.specs.inner.ListsLeft.{lists_left, size_of};
ghost use Rattle.gf_token.specs.TextLayout.{Keeps};

use crate::table::strategies::StrategyLists;
use gf_token::write_label;
use std::alloc::AllocError;

/// How much of lists in braces is written.
#[derive(Clone, Copy)]
pub(crate) struct ListsWritten {
    /// How many lists are written whole.
    lists: usize,
    /// Whether the opening brace of the next one is written.
    opened: bool,
    /// How many of its labels are written.
    labels: usize,
}

impl ListsWritten {
    /// Nothing.
    pub(crate) fn nothing() -> ListsWritten
        ensures { result ≡ record { lists = 0; opened = false; labels = 0 } }
    {
        ListsWritten {
            lists: 0,
            opened: false,
            labels: 0,
        }
    }
}

/// Appends what comes next of these lists: a brace or a label, and a space.
#[tactic(auto, using(crate::proofs::lemmas::texts::Lists::next_of_lists))]
fn write_next(
    lists: &StrategyLists,
    written: ListsWritten,
    out: &mut Vec<u8>,
) -> Result<ListsWritten, AllocError>
    requires list { written.lists < length lists.now }
    requires fits { length lists.now < 2 ^ 64 }
    ensures text { IfOk result (λ more. out.new.items ++ lists_left lists.now more
        ≡ out.old.items ++ lists_left lists.now written) }
    ensures shorter { IfOk result (λ more.
        length (lists_left lists.now more) < length (lists_left lists.now written)) }
    ensures kept { Keeps out.old.items out.new.items }
    ensures full { OnErr result (vec_capacity out.old < vec_len out.old + (size_of lists.now + 3)) }
    ensures capacity { vec_capacity out.old ≤ vec_capacity out.new }
{
    if !written.opened {
        out.extend_from_slice(b"{ ")?;
        return Ok(ListsWritten {
            opened: true,
            ..written
        });
    }
    if written.labels < lists.count(written.lists) {
        write_label(lists.label(written.lists, written.labels), out)?;
        out.push(b' ')?;
        return Ok(ListsWritten {
            labels: written.labels + 1,
            ..written
        });
    }
    out.extend_from_slice(b"} ")?;
    Ok(ListsWritten {
        lists: written.lists + 1,
        opened: false,
        labels: 0,
    })
}

/// Appends what is left of these lists, each before a space, and stops after the brace or the label
/// that makes up this many bytes. Returns how much of them is written then.
pub(crate) fn write_lists(
    lists: &StrategyLists,
    written: ListsWritten,
    bytes: usize,
    out: &mut Vec<u8>,
) -> Result<ListsWritten, AllocError>
    ensures text { IfOk result (λ more. out.new.items ++ lists_left lists.now more
        ≡ out.old.items ++ lists_left lists.now written) }
    ensures whole { IfOk result
        (λ more. length out.new.items < bytes → lists_left lists.now more ≡ []) }
    ensures kept { OnErr result (Keeps out.old.items out.new.items) }
    ensures full { OnErr result (vec_capacity out.old < bytes + (size_of lists.now + 3)) }
    ensures capacity { vec_capacity out.old ≤ vec_capacity out.new }
{
    let mut written = written;
    while written.lists < lists.len() {
        if out.len() >= bytes {
            return Ok(written);
        }
        written = write_next(lists, written, out)?;
    }
    Ok(written)
}
