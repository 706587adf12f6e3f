//! A list in chunks against a plain one.
use chunk_list::{ChunkList, Spot};

// Pseudo-random numbers: xorshift of 64 bits with the shifts 13, 7 and 17 (Marsaglia, 2003).
#[derive(Drop)]
struct Random(u64);

impl Random {
    // A number below the limit, or 0.
    fn below(&mut self, limit: usize) -> usize {
        self.0 ^= self.0 << 13;
        self.0 ^= self.0 >> 7;
        self.0 ^= self.0 << 17;
        self.0.checked_rem(limit as u64).unwrap_or(0) as usize
    }
}

fn insert(list: &mut ChunkList<u64>, plain: &mut Vec<u64>, place: usize, item: u64) -> bool {
    if list.reserve(1).is_err() || list.room() == 0 {
        return false;
    }
    if place > list.len() || place > plain.len() {
        return false;
    }
    list.insert(place, item);
    plain.insert(place, item).is_ok()
}

// Whether both gave the same item.
fn remove(list: &mut ChunkList<u64>, plain: &mut Vec<u64>, place: usize) -> bool {
    place < list.len() && place < plain.len() && list.remove(place) == plain.remove(place)
}

// Whether both have the same items, by their places and by a walk.
fn agree(list: &ChunkList<u64>, plain: &[u64]) -> bool {
    let mut walk = list.walk();
    for (place, item) in plain.iter().enumerate() {
        if list.get(place) != Some(item) || walk.get(place) != Some(item) {
            return false;
        }
    }
    list.len() == plain.len() && walk.get(plain.len()).is_none()
}

// Of three items that go in at any place, or at the end, one goes out again.
fn grows(list: &mut ChunkList<u64>, plain: &mut Vec<u64>, random: &mut Random) -> bool {
    for item in 0..24_000 {
        let end = plain.len();
        let place = if item % 7 == 6 {
            end
        } else {
            random.below(end)
        };
        if !insert(list, plain, place, item) {
            return false;
        }
        let gone = random.below(plain.len());
        if item % 3 == 2 && !remove(list, plain, gone) {
            return false;
        }
    }
    list.len() == 16_000 && agree(list, plain.as_slice())
}

fn empties(list: &mut ChunkList<u64>, plain: &mut Vec<u64>, random: &mut Random) -> bool {
    for left in 0..plain.len() {
        let gone = random.below(plain.len());
        if !remove(list, plain, gone) || (left == 9000 && !agree(list, plain.as_slice())) {
            return false;
        }
    }
    list.is_empty()
}

// Its chunks fill more than two blocks.
#[test]
fn is_as_a_plain_list(rt: HostRuntime) {
    let mut list = ChunkList::new(rt.alloc());
    let mut plain = Vec::new(rt.alloc());
    let mut random = Random(0x9e37_79b9_7f4a_7c15);
    assert!(rt; grows(&mut list, &mut plain, &mut random));
    assert!(rt; empties(&mut list, &mut plain, &mut random));
}

// Where the number itself stands, sought from the spot of another one.
fn is_found(list: &ChunkList<u64>, other: u64, number: u64) -> bool {
    let (near, _) = list.find_near(Spot::at(0), |item| *item < other);
    let (spot, item) = list.find_near(near, |item| *item < number);
    spot.place as u64 == number && item == Some(&number)
}

fn counts_up(list: &mut ChunkList<u64>) -> bool {
    for number in 0..3000 {
        if list.reserve(1).is_err() || list.room() == 0 {
            return false;
        }
        let end = list.len();
        list.insert(end, number);
    }
    true
}

#[test]
fn finds_near_and_far(rt: HostRuntime) {
    let mut list = ChunkList::new(rt.alloc());
    assert!(rt; counts_up(&mut list));
    for number in 0..3000 {
        assert!(rt; is_found(&list, number, number) && is_found(&list, 2999 - number, number));
    }
}
