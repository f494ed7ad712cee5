// The round in which each cell was opened, kept beside the position: a number for each cell, and 65535 while the cell has none. A cell gets its round once, after
// the flood that opened it, and keeps it. specs/GivenRounds.antt says what a round given is; that the numbers are the rounds of SPECIFICATION 9.6 is a law.
#![tactic(auto)]

ghost use Rattle.std.specs.Prelude.{◌≡◌, true, [], ◌*◌, ltb, length};
ghost use Rattle.lists.specs.Lists.{all};
ghost use Rattle.grid.specs.Window.{neighbours_on, Board};
ghost use Rattle.fitting.specs.Boards.{Accepted};
ghost use Rattle.fitting.specs.Passes.{open_cells};
ghost use Rattle.rounds.specs.Rounds.{rounds_of};
ghost use Rattle.rounds.specs.GivenRounds.{round_after, round_given};

use flood::refresh_board;
use grid::window::Size;

// In the place of a round: the cell is closed.
pub const NO_ROUND: u16 = 65535;

// No cell has a round: there is no position yet.
pub fn no_rounds(opened_in: &mut [u16])
    ensures { opened_in.new ≡ rounds_of [] (length opened_in.old) }
{
    opened_in.fill(NO_ROUND);
}

// The round of a cell that shows this, after a flood in this round: one that is open and has none gets it.
fn round_after(shown: u8, kept: u16, round: u16) -> u16
    ensures { result ≡ round_after round shown kept }
{
    if shown <= 8 && kept == NO_ROUND {
        round
    } else {
        kept
    }
}

// Gives this round to each open cell that has none yet. Every number is stored anew, so that the loop has no branch.
fn give_round(position: &[u8], opened_in: &mut [u16], round: u16)
    requires { length opened_in.old ≡ length position.now }
    ensures { opened_in.new ≡ round_given round position.now opened_in.old }
{
    for (c, kept) in opened_in.iter_mut().enumerate() {
        *kept = round_after(position[c], *kept, round);
    }
}

// refresh_board in a round: the cells that it opens have this round.
pub fn open_in_round(
    size: Size,
    board: &[u8],
    position: &mut [u8],
    cells: &[u16],
    opened_in: &mut [u16],
    round: u16,
)
    requires board { Board board.now size.rows size.columns × Board position.old size.rows size.columns }
    requires accepted { Accepted (neighbours_on size) board.now }
    requires on_board { all (λ c. ltb c (size.rows * size.columns)) cells.now ≡ true }
    requires opened_in_len { length opened_in.old ≡ size.rows * size.columns }
    ensures position_after { position.new ≡ open_cells (neighbours_on size) board.now position.old cells.now }
    ensures opened_in_after { opened_in.new ≡ round_given round position.new opened_in.old }
{
    refresh_board(size, board, position, cells);
    give_round(position, opened_in, round);
}
