ghost use Rattle.std.specs.Prelude.{◌≡◌, ◌+◌, ◌^◌, ◌<◌, ◌≤◌};
ghost use Rattle.codec_terms.specs.Bits.{low_bits};
ghost use Rattle.packet_size.specs.Counting.{counted_into, behind_next};

/// What is left of a number's bits when the whole bytes are taken off.
#[derive(Clone, Copy, Debug)]
pub(crate) struct Rest {
    pub(crate) bytes: u64,
    pub(crate) behind: u32,
    pub(crate) pending: u32,
}

// How many bits the byte behind this one, of the lowest `behind + 1` bits, has behind its first.
fn behind_next(behind: u32, bits: u64) -> u32
    requires { behind ≤ 7 }
    ensures { result ≡ behind_next behind bits }
{
    // One behind an FF has only seven bits, and isn't FF.
    if behind == 7 && bits & 0xff == 0xff {
        6
    } else {
        7
    }
}

/// Takes the whole bytes off the lowest `pending` bits; the first one has `behind` bits behind its first.
pub(crate) fn whole_bytes(bytes: u64, behind: u32, pending: u32, bits: u64) -> Rest
    requires byte { behind ≤ 7 }
    requires word { pending < 64 }
    requires room { bytes + pending < 2 ^ 64 }
    ensures same { counted_into result.bytes result.behind 0 (low_bits result.pending bits)
        ≡ counted_into bytes behind 0 (low_bits pending bits) }
    ensures begun { result.pending ≤ result.behind }
    ensures byte { result.behind ≤ 7 }
{
    let mut rest = Rest {
        bytes,
        behind,
        pending,
    };
    while rest.behind < rest.pending {
        let left = rest.pending - rest.behind - 1;
        rest = Rest {
            bytes: rest.bytes + 1,
            behind: behind_next(rest.behind, bits >> left),
            pending: left,
        };
    }
    rest
}
