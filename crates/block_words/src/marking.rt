ghost use Rattle.std.specs.Prelude.{◌≡◌, ◌+◌, ◌<◌, ◌≤◌, fold};
ghost use Rattle.block_words.specs.Words.{put, marked, marks};

/// A word's bit for the sample itself.
const SIGNIFICANT: u16 = 0x1000;

fn put(words: &mut [u16; 1156], at: usize, bits: u16)
    requires { at < 1156 }
    ensures { words.new ≡ put words.old at bits }
{
    words[at] |= bits;
}

/// Tells a sample's neighbours that it is significant; `signs` is 0xf00 where it is negative, else 0.
pub fn mark(words: &mut [u16; 1156], at: usize, signs: u16)
    requires low { 35 ≤ at }
    requires high { at + 35 < 1156 }
    ensures { words.new ≡ fold marked words.old (marks at signs) }
{
    put(words, at, SIGNIFICANT);
    put(words, at + 1, 0x01 | signs & 0x100);
    put(words, at - 1, 0x02 | signs & 0x200);
    put(words, at + 34, 0x04 | signs & 0x400);
    put(words, at - 34, 0x08 | signs & 0x800);
    put(words, at + 35, 0x10);
    put(words, at + 33, 0x20);
    put(words, at - 33, 0x40);
    put(words, at - 35, 0x80);
}
