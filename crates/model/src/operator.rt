// An operator is its byte in the file.
ghost use Rattle.std.specs.Prelude.{◌≡◌};
ghost use Rattle.model.specs.Tables.{swaps as swaps_of, operator_in, arity_of};

// Whether its arguments may swap.
#[tactic(auto, unfolding(crate::specs::Tables::swaps))]
pub fn swaps(byte: usize) -> bool
    ensures { result ≡ swaps_of byte }
{
    byte == 0x82
}

#[tactic(auto, unfolding(crate::specs::Tables::swaps, crate::specs::Tables::arity_of))]
pub fn arity(byte: usize) -> usize
    ensures { result ≡ arity_of byte }
{
    if swaps(byte) { 2 } else { byte }
}

// Whether a file of this version may have it.
#[tactic(auto, unfolding(crate::specs::Tables::swaps, crate::specs::Tables::operator_in, crate::specs::Test::within))]
pub fn is_operator(version: usize, byte: usize) -> bool
    ensures { result ≡ operator_in version byte }
{
    if swaps(byte) {
        version == 2
    } else {
        1 <= byte && byte <= 4
    }
}
