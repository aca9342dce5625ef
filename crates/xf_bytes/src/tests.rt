use crate::{feedless_count, mild_count, plain_count};

// Each byte alone, by the rule: 33 to 126 without 34, 35, 39 and 92 are plain, with 9 and 32 mild, and 10 alone is a line feed.
#[test]
fn each_byte_is_of_its_kind(rt: HostRuntime) {
    for byte in 0..=255u8 {
        let plain = byte == 33
            || (36..=38).contains(&byte)
            || (40..=91).contains(&byte)
            || (93..=126).contains(&byte);
        let mild = plain || byte == 9 || byte == 32;
        assert_eq!(rt; mild_count(&[byte]), if mild { 1 } else { 0 });
        assert_eq!(rt; plain_count(&[byte]), if plain { 1 } else { 0 });
        assert_eq!(rt; feedless_count(&[byte]), if byte == 10 { 0 } else { 1 });
    }
}

// A run ends at each place of a line, and of a longer one.
#[test]
fn a_run_ends_at_each_place(rt: HostRuntime) {
    assert_eq!(rt; mild_count(&[]), 0);
    assert_eq!(rt; plain_count(&[]), 0);
    assert_eq!(rt; feedless_count(&[]), 0);
    let mut bytes = [b'a'; 100];
    for place in 0..100 {
        bytes[place] = b'\n';
        assert_eq!(rt; mild_count(&bytes), place);
        assert_eq!(rt; plain_count(&bytes), place);
        assert_eq!(rt; feedless_count(&bytes), place);
        assert_eq!(rt; mild_count(&bytes[..place]), place);
        assert_eq!(rt; plain_count(&bytes[..place]), place);
        assert_eq!(rt; feedless_count(&bytes[..place]), place);
        bytes[place] = b'a';
    }
}
