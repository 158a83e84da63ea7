// The destination address: the first six bytes of a frame, lent as a part of it. The station address and the multicast table stand in words, two bytes each.
ghost use Rattle.std.specs.Prelude.{◌≡◌, ◌&&◌, ◌||◌, ◌≤◌, ◌<◌, length, take};
ghost use Rattle.rules.specs.Bits.{bit};
ghost use Rattle.rules.specs.Crc.{hash};
ghost use Rattle.rules.specs.Receive.{same_bytes, broadcast, group, in_table, accepted, group_bits};
ghost use Rattle.state.specs.View.{word, registers_in};

use state::{RCR, STATION, TABLE, flags};

// Where a frame goes.
pub fn destination(frame: &[u8]) -> &[u8; 6]
    requires { 6 ≤ length frame.now }
    ensures { result.now ≡ take 6 frame.now }
{
    frame[..6].try_into().unwrap()
}

pub fn is_broadcast(address: &[u8; 6]) -> bool
    ensures { result ≡ broadcast address.now }
{
    address.iter().all(|&byte| byte == 0xff)
}

#[tactic(auto, using(crate::proofs::Places::six_bytes))]
fn is_station(address: &[u8; 6], words: &[u16]) -> bool
    requires { length words.now ≡ 32 }
    ensures { result ≡ same_bytes address.now (registers_in words.now).receiving.station }
{
    let [a, b, c, d, e, f] = *address;
    u16::from_le_bytes([a, b]) == words[STATION]
        && u16::from_le_bytes([c, d]) == words[STATION + 1]
        && u16::from_le_bytes([e, f]) == words[STATION + 2]
}

#[tactic(auto, unfolding(rules::specs::Receive::group))]
pub fn is_group(address: &[u8; 6]) -> bool
    ensures { result ≡ group address.now }
{
    bits::byte_is_set(address[0], flags::GROUP)
}

// The six bits by which a group address is looked up: the top six of the remainder, which `crc` holds with its bits in the other order.
#[tactic(auto, using(crate::proofs::Places::reverse_bits_lem), unfolding(rules::specs::Crc::hash))]
fn hash_of(address: &[u8; 6]) -> u8
    ensures { (result ≡ hash address.now) × (result < 64) }
{
    (crc::remainder(address).reverse_bits() >> 26) as u8
}

// The upper three bits of the hash choose the table byte, the lower three the bit: the upper two the word, the lower four the bit in it.
#[tactic(auto, using(crate::proofs::Places::table_word))]
fn in_table(words: &[u16], hash: u8) -> bool
    requires { (length words.now ≡ 32) × (hash < 64) }
    ensures { result ≡ in_table (registers_in words.now).receiving.table hash }
{
    bits::is_set(words[TABLE + (hash / 16) as usize], hash as u16 % 16)
}

// A group address with ALMUL, or with its table bit set.
fn is_wanted_group(address: &[u8; 6], words: &[u16]) -> bool
    requires { length words.now ≡ 32 }
    ensures { result ≡ group address.now && (bit 2 (word words.now 2) || in_table (registers_in words.now).receiving.table (hash address.now)) }
{
    is_group(address)
        && (bits::is_set(words[RCR], flags::ALMUL) || in_table(words, hash_of(address)))
}

// All with PRMS; broadcast; a group address that is wanted; the station address.
#[tactic(auto, unfolding(rules::specs::Receive::accepted))]
pub fn is_accepted(address: &[u8; 6], words: &[u16]) -> bool
    requires { length words.now ≡ 32 }
    ensures { result ≡ accepted (registers_in words.now) address.now }
{
    bits::is_set(words[RCR], flags::PRMS)
        || is_broadcast(address)
        || is_wanted_group(address, words)
        || is_station(address, words)
}

// What the status word says of a group address that is not broadcast: bit 0, and the hash in 6 to 1.
#[tactic(auto, unfolding(rules::specs::Receive::group_bits))]
pub fn group_bits(address: &[u8; 6]) -> u16
    ensures { (result ≡ group_bits address.now) × (result < 128) }
{
    if !is_group(address) || is_broadcast(address) {
        return 0;
    }
    2 * hash_of(address) as u16 + (1 << flags::MULTCAST)
}
