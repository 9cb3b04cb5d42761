ghost use Rattle.std.specs.Prelude.{◌≡◌, ◌≢◌, ◌+◌, ◌*◌, ◌/◌, ◌%◌, ◌<◌, ℕ, IsTrue, slice_index};
ghost use Rattle.std.specs.Int.{bit_at};
ghost use Rattle.block_sets.specs.Squares.{exchanged_with, IsApart};

// Exchanges each bit of a mask with the one `shift` above it.
fn exchanged(square: u64, shift: u32, mask: u64) -> u64
    requires shift { shift < 64 }
    requires apart { IsApart shift mask }
    ensures { (i : ℕ) → i < 64 → bit_at result i ≡ bit_at square (exchanged_with shift mask i) }
{
    let differing = (square ^ square >> shift) & mask;
    square ^ differing ^ differing << shift
}

// Turns eight bytes of eight bits round: bit j of byte k becomes bit k of byte j.
fn transposed(square: u64) -> u64
    ensures { (i : ℕ) → i < 64 → bit_at result i ≡ bit_at square (i % 8 * 8 + i / 8) }
{
    let near = exchanged(square, 7, 0x00aa_00aa_00aa_00aa);
    let further = exchanged(near, 14, 0x0000_cccc_0000_cccc);
    exchanged(further, 28, 0x0000_0000_f0f0_f0f0)
}

// Eight of 64 bytes as one number, the first lowest.
fn square_at(bytes: &[u8; 64], group: usize) -> u64
    requires { group < 8 }
    ensures { (k j : ℕ) → k < 8 → j < 8
        → bit_at result (k * 8 + j) ≡ bit_at (slice_index bytes.now (8 * group + k)) j }
{
    let at = 8 * group;
    u64::from_le_bytes([
        bytes[at],
        bytes[at + 1],
        bytes[at + 2],
        bytes[at + 3],
        bytes[at + 4],
        bytes[at + 5],
        bytes[at + 6],
        bytes[at + 7],
    ])
}

fn byte_of(square: u64, p: usize) -> u8
    requires { p < 8 }
    ensures { (j : ℕ) → j < 8 → bit_at result j ≡ bit_at square (p * 8 + j) }
{
    (square >> (8 * p) & 0xff) as u8
}

// The other way: a number as eight of 64 bytes.
fn put_square(bytes: &mut [u8; 64], group: usize, square: u64)
    requires { group < 8 }
    ensures here { (p j : ℕ) → p < 8 → j < 8
        → bit_at (slice_index bytes.new (8 * group + p)) j ≡ bit_at square (p * 8 + j) }
    ensures others { (i : ℕ) → i / 8 ≢ group → slice_index bytes.new i ≡ slice_index bytes.old i }
{
    for p in 0..8usize {
        bytes[8 * group + p] = byte_of(square, p);
    }
}

// Turns round each eight of the bytes.
fn turn_squares(bytes: &[u8; 64], turned: &mut [u8; 64])
    ensures { (group p j : ℕ) → group < 8 → p < 8 → j < 8
        → bit_at (slice_index turned.new (8 * group + p)) j ≡ bit_at (slice_index bytes.now (8 * group + j)) p }
{
    for group in 0..8usize {
        put_square(turned, group, transposed(square_at(bytes, group)));
    }
}

// Byte p of each eight.
fn gather_bytes(turned: &[u8; 64], p: usize, gathered: &mut [u8; 64])
    requires { p < 8 }
    ensures here { (group : ℕ) → group < 8
        → slice_index gathered.new (8 * p + group) ≡ slice_index turned.now (8 * group + p) }
    ensures others { (i : ℕ) → i / 8 ≢ p → slice_index gathered.new i ≡ slice_index gathered.old i }
{
    for group in 0..8usize {
        gathered[8 * p + group] = turned[8 * group + p];
    }
}

fn gather_all(turned: &[u8; 64], gathered: &mut [u8; 64])
    ensures { (p group : ℕ) → p < 8 → group < 8
        → slice_index gathered.new (8 * p + group) ≡ slice_index turned.now (8 * group + p) }
{
    for p in 0..8usize {
        gather_bytes(turned, p, gathered);
    }
}

// The bits of 64 bytes, plane by plane: bit i of plane p is bit p of byte i.
fn turned_planes(bytes: &[u8; 64]) -> [u64; 8]
    ensures { (p i : ℕ) → p < 8 → i < 64
        → bit_at (slice_index result p) i ≡ bit_at (slice_index bytes.now i) p }
{
    // Bytes are gathered in an array of their own: so the compiler shuffles them as vectors.
    let mut turned = [0u8; 64];
    let mut gathered = [0u8; 64];
    turn_squares(bytes, &mut turned);
    gather_all(&turned, &mut gathered);
    let mut planes = [0u64; 8];
    for p in 0..8usize {
        planes[p] = square_at(&gathered, p);
    }
    planes
}

// Tested by eight bytes at once.
fn are_zero(bytes: &[u8; 64]) -> bool
    ensures { IsTrue result → (i p : ℕ) → i < 64 → p < 8 → bit_at (slice_index bytes.now i) p ≡ 0 }
{
    let mut some = 0u64;
    for group in 0..8usize {
        some |= square_at(bytes, group);
    }
    some == 0
}

/// The bits of 64 bytes, plane by plane: bit i of plane p is bit p of byte i.
pub(crate) fn planes_of(bytes: &[u8; 64]) -> [u64; 8]
    ensures { (p i : ℕ) → p < 8 → i < 64
        → bit_at (slice_index result p) i ≡ bit_at (slice_index bytes.now i) p }
{
    if are_zero(bytes) {
        return [0; 8];
    }
    turned_planes(bytes)
}
