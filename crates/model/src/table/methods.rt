//! A move is begun at the table's end, and the one begun last is lent to be written.
ghost use Rattle.std.specs.Prelude.{◌≡◌, ◌-◌, [], is_some, IfSome, IfOk, vec_len, nat_lt, slice_index_or};
ghost use Rattle.std.specs.Borrow.{sem, follows_so};
ghost use Rattle.std.specs.Vec.{with_item};
ghost use Rattle.std.specs.Option.{ghost_name_of as name_of};
ghost use Rattle.model.specs.contracts.table.MoveTable.{the_row};
ghost use Rattle.model.specs.contracts.moves.Move.{the_row as move_row};
ghost use Rattle.model.specs.Tables.{table_moves, begin_answer, with_begun};

use super::MoveTable;
use crate::moves::Move;
use crate::row::Row;
use refusal::Refusal;
use std::alloc::{AllocError, Global};

impl MoveTable {
    /// An empty table with room for 128 moves.
    pub(crate) fn with_room(heap: Global) -> Result<MoveTable, AllocError>
        ensures { IfOk result (λ t. table_moves t ≡ []) }
    {
        Ok(MoveTable {
            moves: Vec::with_capacity(heap, 128)?,
        })
    }

    /// Begins a move, with no condition and no effect.
    pub(crate) fn begin(&mut self, name: [u8; 8]) -> Result<(), Refusal>
        ensures answer { result ≡ begin_answer (table_moves self.old) }
        ensures after { table_moves self.new ≡ with_begun (table_moves self.old) name }
    {
        if self.moves.len() >= 128 {
            return Err(Refusal::TooMany);
        }
        self.moves.push_reserved(Move {
            name,
            conditions: Row::open(),
            effects: Row::open(),
        });
        Ok(())
    }

    /// Lends the move begun last. What is written to it stands in the table afterwards.
    pub(crate) fn last(&mut self) -> Option<&mut Move>
        ensures* writes_back { sem 𝓛 (follows_so the_row move_row self.entry.ghost_name (name_of result) (λ w n. n.moves ≡ with_item self.old.moves (vec_len self.old.moves - 1) w) (λ n. n.moves ≡ self.old.moves)) }
        ensures facts { (is_some result ≡ nat_lt 0 (vec_len self.old.moves)) × IfSome result (λ x. x.now ≡ slice_index_or self.old.moves.items (vec_len self.old.moves - 1) x.now) }
    {
        self.moves.last_mut()
    }

    /// All moves.
    pub(crate) fn as_slice(&self) -> &[Move]
        ensures { result.now ≡ table_moves self.now }
    {
        self.moves.as_slice()
    }
}
