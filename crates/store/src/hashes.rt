// The hashes of a record's bytes. A record is found by the first; where that is used up, the second tells those apart that share it.
ghost use Rattle.std.specs.Prelude.{◌≡◌};
ghost use Rattle.store.specs.Index.{hash_by, hash_of, second_hash};

use record::numbers::Numbers;

// How many numbers a half of a hash can be, and by how many bits it is rotated.
const HALF: usize = 4294967296;

const ROTATION: u32 = 17;

// The multipliers of the two halves, for the hash that a record is looked up by and for the second one.
const FIRST_LOW: u32 = 1640531527;

const FIRST_HIGH: u32 = 1540483477;

const SECOND_LOW: u32 = 739982445;

const SECOND_HIGH: u32 = 695872825;

// The hash of bytes by two multipliers, two halves of 32 bits. It begins with the last byte. Then each pair of bytes is a number that goes
// into the low half by a product and a rotation; the product goes into the high half in the same way.
pub fn hash_by(rec: &[u8], one: u32, two: u32) -> usize
    ensures { result ≡ hash_by one two rec.now }
{
    let Some(last) = rec.last() else {
        return 0;
    };
    let mut low = u32::from(*last);
    let mut high: u32 = 0;
    for v in (Numbers { bytes: rec }) {
        let x = low.wrapping_add(v as u32).wrapping_mul(one);
        let y = high.wrapping_add(x).wrapping_mul(two);
        low = x.rotate_left(ROTATION);
        high = y.rotate_left(ROTATION);
    }
    low as usize + high as usize * HALF
}

// The hash that a record is looked up by.
pub fn hash(rec: &[u8]) -> usize
    ensures { result ≡ hash_of rec.now }
{
    hash_by(rec, FIRST_LOW, FIRST_HIGH)
}

// The hash of records that share the first one.
pub fn second(rec: &[u8]) -> usize
    ensures { result ≡ second_hash rec.now }
{
    hash_by(rec, SECOND_LOW, SECOND_HIGH)
}
