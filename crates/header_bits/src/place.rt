use codec_terms::HeadRefusal;
use std::marker::Model;

/// How far a header is read: the place behind the byte in hand, that byte, and how many of its bits are still to come.
#[derive(Debug, Drop)]
pub struct BitPlace {
    next: usize,
    byte: u8,
    left: u32,
}

impl Model for BitPlace {
    ghost use Rattle.std.specs.Prelude.{◌≤◌};
    ghost use Rattle.codec_terms.specs.PacketReading as reading;

    ghost Value = { reading.BitPlace };

    ghost view = { λ p. record { next = p.next; byte = p.byte; left = p.left } };

    ghost invariant = { λ p. p.left ≤ 8 };
}

impl BitPlace {
    ghost use Rattle.std.specs.Prelude.{◌≡◌, ◌-◌, ◌<◌, ◌≤◌, ◌^◌, ◌==◌, [], if◌then◌else◌, IfOk, IfErr, OnOk, Ok, Err};
    ghost use Rattle.codec_terms.specs.PacketReading.{byte_read, top_bit, bit_read, header_end};
    ghost use Rattle.codec_laws.specs.BitsAhead.{start_at};
    ghost use Rattle.header_bits.specs.Takes.{bits_at, behind_bits};

    /// In front of the byte at a place.
    pub fn start(at: usize) -> Self
        ensures { result ≡ start_at at }
    {
        BitPlace {
            next: at,
            byte: 0,
            left: 0,
        }
    }

    /// The place behind the byte in hand.
    pub fn next(&self) -> usize
        ensures { result ≡ self.now.next }
    {
        self.next
    }

    /// The place of the byte in hand.
    pub fn here(&self) -> usize
        ensures { result ≡ self.now.next - 1 }
    {
        self.next.saturating_sub(1)
    }

    // How many bits count of the byte behind the one in hand.
    fn bits_behind(&self) -> u32
        ensures { result ≡ (if self.now.byte == 255 then 7 else 8) }
    {
        if self.byte == 0xff { 7 } else { 8 }
    }

    /// Takes the next byte. Behind FF its top bit is 0 and isn't counted.
    pub(crate) fn read_byte(&mut self, bytes: &[u8]) -> Result<(), HeadRefusal>
        ensures read { OnOk result (byte_read bytes.now self.old ≡ Ok self.new) }
        ensures some { OnOk result (0 < self.new.left) }
        ensures refused { IfErr result (λ refusal. byte_read bytes.now self.old ≡ Err refusal) }
    {
        if bytes.len() <= self.next {
            return Err(HeadRefusal::Truncated { at: bytes.len() });
        }
        let byte = bytes[self.next];
        if self.byte == 0xff && 0x80 <= byte {
            return Err(HeadRefusal::BadStuffing { at: self.next });
        }
        *self = BitPlace {
            next: self.next + 1,
            byte,
            left: self.bits_behind(),
        };
        Ok(())
    }

    /// How many bits are still to come of the byte in hand.
    pub(crate) fn left(&self) -> u32
        ensures left { result ≡ self.now.left }
        ensures few { result ≤ 8 }
    {
        self.left
    }

    /// Takes the highest bits that are still to come of the byte in hand, as a number.
    pub(crate) fn take_bits(&mut self, bits: u32) -> u32
        requires { bits ≤ self.old.left }
        ensures value { result ≡ bits_at self.old.byte bits (self.old.left - bits) }
        ensures few { result < 2 ^ bits }
        ensures place { self.new ≡ behind_bits self.old bits }
    {
        self.left -= bits;
        (u32::from(self.byte) >> self.left) % (1 << bits)
    }

    // Takes the highest bit that is still to come of the byte in hand.
    fn take_bit(&mut self) -> bool
        requires { 0 < self.old.left }
        ensures bit { (result, self.new) ≡ top_bit [] self.old (self.old.left - 1) }
    {
        self.left -= 1;
        self.byte >> self.left & 1 == 1
    }

    /// Takes the next bit.
    pub fn read_bit(&mut self, bytes: &[u8]) -> Result<bool, HeadRefusal>
        ensures read { IfOk result (λ bit. bit_read bytes.now self.old ≡ Ok (bit, self.new)) }
        ensures refused { IfErr result (λ refusal. bit_read bytes.now self.old ≡ Err refusal) }
    {
        if self.left == 0 {
            self.read_byte(bytes)?;
        }
        Ok(self.take_bit())
    }

    /// The place behind the header whose last bit was read. A header doesn't end with FF: one byte more follows.
    pub fn header_end(&mut self, bytes: &[u8]) -> Result<usize, HeadRefusal>
        ensures { result ≡ header_end bytes.now self.old }
    {
        if self.byte == 0xff {
            self.read_byte(bytes)?;
        }
        Ok(self.next)
    }
}
