//! Lists of labels that own their bytes.

ghost use Rattle.std.specs.Prelude.{◌≡◌, ◌<◌, ◌≤◌, ◌++◌, ◌∷◌, [], Some};
ghost use Rattle.std.specs.Prelude.{◌↔◌, length, map, slice_get, sum, IfOk, IsTrue, OnErr, OnOk};
ghost use Rattle.std.specs.List.{join_with_byte};
ghost use Rattle.gf_token.specs.Label.{label_of};
ghost use Rattle.gf_token.specs.LabelSpelling.{IsLabel};
ghost use Rattle.gf_nfg.specs.Sentence.{counted_labels};
ghost use Rattle.gf_nfg.specs.Spellable.{AreSpellings};
ghost use Rattle.gf_nfg.specs.inner.TableParts.{dashed};
ghost use Rattle.gf_token.specs.TextLayout.{Keeps};

use crate::table::pieces::piece;
use gf_token::Label;
use itoa::Buffer;
use std::alloc::{AllocError, Global};
use std::marker::Model;

/// Labels in one buffer, with the place where each ends.
#[derive(Drop)]
pub struct Labels {
    bytes: Vec<u8>,
    ends: Vec<usize>,
}

impl Model for Labels {
    ghost use Rattle.std.specs.Prelude.{List, ℕ};
    ghost use Rattle.gf_nfg.specs.inner.TableParts.{IsCut, pieces};

    ghost Value = { List (List ℕ) };

    ghost view = { λ l. pieces 0 l.ends.items l.bytes.items };

    ghost invariant = { λ l. IsCut l.ends.items l.bytes.items };
}

/// Appends labels, each after a `-`.
fn write_dashed(parts: &[Label<'_>], bytes: &mut Vec<u8>) -> Result<(), AllocError>
    ensures text { OnOk result
        (bytes.new.items ≡ bytes.old.items ++ dashed (map label_of parts.now)) }
    ensures kept { OnErr result (Keeps bytes.old.items bytes.new.items) }
{
    for part in parts {
        bytes.push(b'-')?;
        bytes.extend_from_slice(part.raw())?;
    }
    Ok(())
}

/// Appends these labels, joined by `-`.
fn write_joined(parts: &[Label<'_>], bytes: &mut Vec<u8>) -> Result<(), AllocError>
    ensures text { OnOk result
        (bytes.new.items ≡ bytes.old.items ++ join_with_byte 45 (map label_of parts.now)) }
    ensures label { OnOk result (IsLabel (join_with_byte 45 (map label_of parts.now))) }
    ensures kept { OnErr result (Keeps bytes.old.items bytes.new.items) }
{
    match parts.split_first() {
        None => Ok(()),
        Some((first, others)) => {
            bytes.extend_from_slice(first.raw())?;
            write_dashed(others, bytes)?;
            Ok(())
        }
    }
}

impl Labels {
    /// No labels.
    // No edit: it puts parts together.
    pub fn new(alloc: Global) -> Labels
        ensures { result ≡ [] }
    {
        Labels {
            bytes: Vec::new(alloc),
            ends: Vec::new(alloc),
        }
    }

    /// How many labels there are.
    // No edit: it returns a part.
    #[tactic(auto, using(crate::proofs::lemmas::tables::Pieces::as_many_pieces))]
    pub fn len(&self) -> usize
        ensures len { result ≡ length self.now }
        ensures spelled { AreSpellings self.now }
    {
        self.ends.len()
    }

    /// Whether both are the same labels.
    #[tactic(auto, using(crate::proofs::lemmas::tables::Pieces::one_way_cut))]
    pub(crate) fn is_same(&self, o: &Labels) -> bool
        ensures { IsTrue result ↔ (self.now ≡ o.now) }
    {
        self.ends == o.ends && self.bytes == o.bytes
    }

    /// How many bytes the labels have, all together.
    // No edit: it returns a part.
    #[tactic(auto, using(crate::proofs::lemmas::tables::LabelLists::pieces_size))]
    pub fn size(&self) -> usize
        ensures { result ≡ sum (map length self.now) }
    {
        self.bytes.len()
    }

    /// Makes room for this many more labels, which have this many bytes all together.
    ///
    /// # Errors
    ///
    /// `AllocError` if memory is refused.
    // No edit: it passes on `Vec::reserve`.
    pub fn reserve(&mut self, labels: usize, bytes: usize) -> Result<(), AllocError>
        ensures { self.new ≡ self.old }
    {
        self.ends.reserve(labels)?;
        self.bytes.reserve(bytes)?;
        Ok(())
    }

    /// Adds a label at the end.
    ///
    /// # Errors
    ///
    /// `AllocError` if memory is refused; nothing is then added.
    // No edit: `Labels::push_joined` has one, and proofs of gf_form rely on this.
    #[tactic(auto, using(crate::proofs::lemmas::tables::Pieces::one_piece_more))]
    pub fn push(&mut self, label: Label<'_>) -> Result<(), AllocError>
        ensures ok { OnOk result (self.new ≡ self.old ++ label_of label.entry ∷ []) }
        ensures err { OnErr result (self.new ≡ self.old) }
    {
        self.ends.reserve(1)?;
        self.bytes.extend_from_slice(label.raw())?;
        self.ends.push_reserved(self.bytes.len());
        Ok(())
    }

    /// Adds one label at the end: these, joined by `-`.
    ///
    /// # Errors
    ///
    /// `AllocError` if memory is refused; nothing is then added.
    #[tactic(auto, using(crate::proofs::lemmas::tables::Pieces::one_piece_more))]
    pub fn push_joined(&mut self, parts: &[Label<'_>]) -> Result<(), AllocError>
        ensures ok { OnOk result
            (self.new ≡ self.old ++ join_with_byte 45 (map label_of parts.now) ∷ []) }
        ensures err { OnErr result (self.new ≡ self.old) }
    {
        self.ends.reserve(1)?;
        let start = self.bytes.len();
        let written = write_joined(parts, &mut self.bytes);
        if written.is_err() {
            self.bytes.truncate(start);
            return written;
        }
        self.ends.push_reserved(self.bytes.len());
        Ok(())
    }

    /// These labels, followed by the others. If there are none of these, the others are not copied.
    ///
    /// # Errors
    ///
    /// `AllocError` if memory is refused.
    // No edit: it passes on `Labels::extend_by`.
    pub fn followed_by(self, others: Labels) -> Result<Labels, AllocError>
        ensures labels { IfOk result (λ all. all ≡ self ++ others) }
        ensures spelled { IfOk result (λ all. AreSpellings all) }
    {
        // Its clause says that they are spelled.
        let _others = others.len();
        if self.len() == 0 {
            return Ok(others);
        }
        let mut all = self;
        all.extend_by(&others)?;
        Ok(all)
    }

    /// Adds labels at the end. If memory is refused, some of them may have been added.
    pub(crate) fn extend(&mut self, labels: &[Label<'_>]) -> Result<(), AllocError>
        ensures ok { OnOk result (self.new ≡ self.old ++ map label_of labels.now) }
        ensures grown { length self.old ≤ length self.new }
    {
        for label in labels {
            self.push(*label)?;
        }
        Ok(())
    }

    /// Adds the others' labels at the end. If memory is refused, some of them may have been added.
    #[tactic(auto, using(crate::proofs::lemmas::tables::LabelLists::one_label_more))]
    fn extend_by(&mut self, others: &Labels) -> Result<(), AllocError>
        ensures { OnOk result (self.new ≡ self.old ++ others.now) }
    {
        self.reserve(others.len(), others.size())?;
        for at in 0..others.len() {
            self.push(others.label(at))?;
        }
        Ok(())
    }

    /// Adds the labels "1" to `count` at the end. If memory is refused, some of them may have been
    /// added.
    #[tactic(auto, using(crate::proofs::lemmas::tables::LabelLists::one_count_more))]
    pub(crate) fn extend_counted(&mut self, count: u32) -> Result<(), AllocError>
        ensures ok { OnOk result (self.new ≡ self.old ++ counted_labels count) }
        ensures grown { length self.old ≤ length self.new }
    {
        let mut buffer = Buffer::new();
        for before in 0..count {
            let number = buffer.format(before + 1).as_bytes();
            self.push(Label::of_spelling(number))?;
        }
        Ok(())
    }

    /// The label at this place, from 0. The caller has to ensure that there is one.
    // No edit: it returns a part.
    #[tactic(auto, using(crate::proofs::lemmas::tables::Pieces::one_piece))]
    pub fn label(&self, at: usize) -> Label<'_>
        requires { at < length self.now }
        ensures { slice_get self.now at ≡ Some (label_of result) }
    {
        Label::of_spelling(piece(&self.bytes, &self.ends, at))
    }
}
