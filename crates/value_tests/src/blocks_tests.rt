//! Calls that go over bytes in blocks of sixteen: at each length up to two and a half blocks, and
//! at each place in it.
use key_lanes::{abbreviated_key, common_prefix, compare, find_break, is_ascii, lower_ascii};
use std::cmp::Ordering;

// So many bytes, but for one of them.
fn bytes_but(all: u8, place: usize, one: u8) -> [u8; 41] {
    let mut bytes = [all; 41];
    if place < 41 {
        bytes[place] = one;
    }
    bytes
}

// Whether the break at a place is found from each place up to it, and none behind it.
fn is_break_found(len: usize, place: usize) -> bool {
    let mut bytes = bytes_but(b'\r', place, b'\n');
    if place >= 40 || len > 41 {
        return false;
    }
    bytes[place] = b'\r';
    bytes[place + 1] = b'\n';
    let piece = &bytes[..len];
    let want = if place + 1 < len { Some(place) } else { None };
    for from in 0..len {
        if find_break(piece, from) != if from <= place { want } else { None } {
            return false;
        }
    }
    find_break(piece, len).is_none()
}

// Whether a byte at a place decides the order of equal bytes.
fn is_decided(len: usize, place: usize, byte: u8, want: Ordering) -> bool {
    if len > 41 {
        return false;
    }
    let (a, b) = (bytes_but(b'k', place, byte), [b'k'; 41]);
    common_prefix(&a[..len], &b[..len]) == place
        && compare(&a[..len], &b) == want
        && compare(&b, &a[..len]) == want.reverse()
}

// Whether a byte among others is ASCII or not, and becomes this one.
fn is_lowered(len: usize, place: usize, byte: u8, small: u8) -> bool {
    let mut bytes = bytes_but(b'Q', place, byte);
    if len > 41 || place >= len || is_ascii(&bytes[..len]) != (byte < 128) {
        return false;
    }
    lower_ascii(&mut bytes[..len]);
    for (at, found) in bytes.iter().enumerate() {
        let other = if at < len { b'q' } else { b'Q' };
        if *found != if at == place { small } else { other } {
            return false;
        }
    }
    true
}

// The bytes beside the capital letters, and both ends.
const LOWERED: &[(u8, u8)] = &[
    (0, 0),
    (64, 64),
    (65, 97),
    (90, 122),
    (91, 91),
    (122, 122),
    (127, 127),
    (128, 128),
    (255, 255),
];

fn is_each_lowered(len: usize, place: usize) -> bool {
    for (byte, small) in LOWERED {
        if !is_lowered(len, place, *byte, *small) {
            return false;
        }
    }
    true
}

fn is_right_at(len: usize, place: usize) -> bool {
    is_break_found(len, place)
        && is_decided(len, place, 0, Ordering::Less)
        && is_decided(len, place, b'l', Ordering::Greater)
        && is_decided(len, place, 255, Ordering::Greater)
        && is_each_lowered(len, place)
}

#[test]
fn is_right_at_each_length_and_place(rt: HostRuntime) {
    for len in 0..41 {
        for place in 0..len {
            assert!(rt; is_right_at(len, place));
        }
    }
}

fn are_keys() -> bool {
    let text = "abcdefghijklmnopq".as_bytes();
    abbreviated_key("".as_bytes(), 16) == 0
        && abbreviated_key(text, 0) == 0
        && abbreviated_key("ab".as_bytes(), 3) == 0x616200
        && abbreviated_key(text, 8) == 0x6162636465666768
        && abbreviated_key(text, 16) == 0x6162636465666768696a6b6c6d6e6f70
}

#[test]
fn abbreviates_keys(rt: HostRuntime) {
    assert!(rt; are_keys() && is_ascii(b"") && compare(b"a", b"ab") == Ordering::Less);
}
