//! How many cases of a group are right, and the first that is not.

/// The cases of a group.
#[derive(Clone, Copy)]
pub struct Cases {
    pub right: u32,
    pub wrong: u32,
    /// The first that is wrong, with its number from 1.
    pub first: Option<(&'static str, u32)>,
}

impl Cases {
    pub fn new() -> Cases {
        Cases {
            right: 0,
            wrong: 0,
            first: None,
        }
    }

    /// Counts a case of this name.
    pub fn add(&mut self, name: &'static str, is_right: bool) {
        if is_right {
            self.right = self.right.saturating_add(1);
            return;
        }
        self.wrong = self.wrong.saturating_add(1);
        if self.first.is_none() {
            let number = self.right.saturating_add(self.wrong);
            self.first = Some((name, number));
        }
    }
}
