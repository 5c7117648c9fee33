//! The line and column of a byte in a text.
ghost use Rattle.std.specs.Prelude.{◌≡◌, ◌+◌, ◌<◌, ◌^◌};
ghost use Rattle.acl_setup.specs.Spots.{goes_on, next_spot, spot_after};

/// A line and a column of characters, both from 1.
#[derive(Clone, Copy, Debug, PartialEq, Eq)]
pub struct Spot {
    pub line: usize,
    pub column: usize,
}

/// Whether the byte continues a character.
fn goes_on(byte: u8) -> bool
    ensures { result ≡ goes_on byte }
{
    128 <= byte && byte < 192
}

/// The spot after a byte.
fn next_spot(spot: Spot, byte: u8) -> Spot
    requires line { spot.line + 1 < 2 ^ 64 }
    requires column { spot.column + 1 < 2 ^ 64 }
    ensures { result ≡ next_spot spot byte }
{
    if byte == b'\n' {
        Spot {
            line: spot.line + 1,
            column: 1,
        }
    } else if goes_on(byte) {
        spot
    } else {
        Spot {
            line: spot.line,
            column: spot.column + 1,
        }
    }
}

/// The spot after these bytes.
pub(crate) fn spot_after(bytes: &[u8]) -> Spot
    ensures { result ≡ spot_after bytes.now }
{
    let mut spot = Spot { line: 1, column: 1 };
    for byte in bytes {
        spot = next_spot(spot, *byte);
    }
    spot
}
