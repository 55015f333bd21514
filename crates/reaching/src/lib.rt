// How far a piece reaches: how many of its bytes come before a Quit byte and have room, and the first of them that is
// replaced.
#![tactic(auto)]

ghost use Rattle.std.specs.Prelude.{◌≡◌, ◌≤◌};
ghost use Rattle.definition.specs.Bounds.{max_input, max_window};
ghost use Rattle.session.specs.Calls.{first_of, quit_place, replaced_in};
ghost use Rattle.reaching.specs.Reached.{reached};

use definition::Binary;

// How many bytes of a piece come in, and whether a Quit byte comes next after them: two facts, so no Option. Bytes come in either way.
#[derive(Clone, Copy)]
pub struct Reach {
    pub taken: usize,
    pub quit: bool,
}

// Looks no further into the piece than one byte past what there is room for.
#[tactic(auto, using(crate::proofs::Laws::quit_take, session::proofs::Parts::quit_le), unfolding(crate::specs::Reached::reached))]
pub fn reaches(binary: Binary, piece: &[u8], room: usize) -> Reach
    requires { room ≤ max_window }
    ensures { result ≡ reached binary piece.now room }
{
    let seen = piece.len().min(room + 1);
    let before = before_quit(binary, &piece[..seen]);
    let taken = before.min(room);
    Reach {
        taken,
        quit: (taken == before) & (taken < piece.len()),
    }
}

fn before_quit(binary: Binary, piece: &[u8]) -> usize
    ensures { result ≡ quit_place binary piece.now }
{
    match binary {
        Binary::Quit(byte) => lines::first_place(piece, byte),
        Binary::Ignore | Binary::Convert(_) => piece.len(),
    }
}

// The first replaced byte so far. Once there is one, no piece is looked through for it.
pub fn first_replaced(
    place: Option<u64>,
    binary: Binary,
    terminator: u8,
    offset: u64,
    bytes: &[u8],
) -> Option<u64>
    requires { offset ≤ max_input }
    ensures { result ≡ first_of place (replaced_in binary terminator offset bytes.now) }
{
    place.or_else(|| replaced_in(binary, terminator, offset, bytes))
}

#[tactic(auto, using(lines::proofs::Laws::found_at, lines::proofs::Laws::found_nothing))]
fn replaced_in(binary: Binary, terminator: u8, offset: u64, bytes: &[u8]) -> Option<u64>
    requires { offset ≤ max_input }
    ensures { result ≡ replaced_in binary terminator offset bytes.now }
{
    match binary {
        Binary::Convert(byte) if byte != terminator => {
            let i = lines::find(bytes, byte)?;
            Some(offset + (i as u64))
        }
        _ => None,
    }
}
