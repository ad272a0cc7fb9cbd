ghost use Rattle.std.specs.Prelude.{◌≡◌, ℕ, ◌/◌, ◌%◌, ◌^◌, ◌<◌, bit_xor, length, slice_index};
ghost use Rattle.parwindow.specs.Nibbles.{AreNibbles};

/// Registers, and the eight nibbles of the inverse of each. By nibbles, sixteen bytes are
/// looked up at a time.
#[derive(Drop)]
pub struct Nibbles {
    pub registers: [u32; 528],
    /// The nibbles in eight lists, the lowest ones first.
    pub nibbles: [[u8; 528]; 8],
    ghost small: { (i : ℕ) → slice_index registers i < 2 ^ 32 },
    ghost are: { AreNibbles registers nibbles },
}

impl Nibbles {
    /// Makes the nibbles of these registers.
    pub fn of(registers: [u32; 528]) -> Nibbles
        ensures { result.registers ≡ registers }
    {
        Nibbles {
            nibbles: [
                nibbles_at(&registers, 0),
                nibbles_at(&registers, 4),
                nibbles_at(&registers, 8),
                nibbles_at(&registers, 12),
                nibbles_at(&registers, 16),
                nibbles_at(&registers, 20),
                nibbles_at(&registers, 24),
                nibbles_at(&registers, 28),
            ],
            registers,
        }
    }
}

// Returns the nibble of the inverse of each register that comes after `bits` low bits.
fn nibbles_at(registers: &[u32; 528], bits: u32) -> [u8; 528]
    requires { bits < 32 }
    ensures { (i : ℕ) → i < 528
        → slice_index result i ≡ bit_xor (slice_index registers.now i) 0xFFFFFFFF / 2 ^ bits % 16 }
{
    let mut nibbles = [0; 528];
    for i in 0..528usize {
        nibbles[i] = (((registers[i] ^ 0xFFFF_FFFF) >> bits) & 15) as u8;
    }
    nibbles
}
