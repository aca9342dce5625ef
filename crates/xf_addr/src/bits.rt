//! An address as one number, and as octets or groups.
ghost use Rattle.std.specs.Prelude.{◌≡◌, ◌<◌, ◌/◌, ◌%◌, ◌^◌, [], ◌∷◌};
ghost use Rattle.xf_addr.specs.Spelling.{number_from};
ghost use Rattle.xf_addr.specs.Text.{octets_of, groups_of};

pub(crate) fn join_octets(octets: [u8; 4]) -> u32
    ensures { result ≡ number_from 256 0 octets }
{
    let [a, b, c, d] = octets;
    ((u32::from(a) * 256 + u32::from(b)) * 256 + u32::from(c)) * 256 + u32::from(d)
}

pub(crate) fn join_groups(groups: [u16; 8]) -> u128
    ensures { result ≡ number_from 65536 0 groups }
{
    let [a, b, c, d, e, f, g, h] = groups;
    let high = join_four(a, b, c, d);
    let low = join_four(e, f, g, h);
    u128::from(high) * 0x1_0000_0000_0000_0000 + u128::from(low)
}

fn join_four(a: u16, b: u16, c: u16, d: u16) -> u64
    ensures { result ≡ number_from 65536 0 (a ∷ b ∷ c ∷ d ∷ []) }
{
    ((u64::from(a) * 0x1_0000 + u64::from(b)) * 0x1_0000 + u64::from(c)) * 0x1_0000 + u64::from(d)
}

pub(crate) fn split_octets(number: u32) -> [u8; 4]
    ensures { result ≡ octets_of number }
{
    [
        (number >> 24 & 0xff) as u8,
        (number >> 16 & 0xff) as u8,
        (number >> 8 & 0xff) as u8,
        (number & 0xff) as u8,
    ]
}

pub(crate) fn split_groups(number: u128) -> [u16; 8]
    ensures { result ≡ groups_of number }
{
    [
        group_at(number, 112),
        group_at(number, 96),
        group_at(number, 80),
        group_at(number, 64),
        group_at(number, 48),
        group_at(number, 32),
        group_at(number, 16),
        group_at(number, 0),
    ]
}

fn group_at(number: u128, shift: u32) -> u16
    requires { shift < 128 }
    ensures { result ≡ number / 2 ^ shift % 65536 }
{
    (number >> shift & 0xffff) as u16
}
