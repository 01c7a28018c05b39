//! The marks of items.
ghost use Rattle.std.specs.Prelude.{◌≡◌, ℕ, Option};
ghost use Rattle.first_come.specs.Marks.{Marking};

/// An item that may have a mark of its own in a table: the same items have the same mark, and no others have it.
pub trait Mark: Eq {
    ghost mark: { Self → Option ℕ };

    /// The item's mark, if it has one.
    fn mark(&self) -> Option<usize>
        ensures { result ≡ mark self.now };

    ghost own: { Marking Self.eq mark };
}
