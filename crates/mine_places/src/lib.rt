// A list of places in a log, two bytes each, the lower first. At each place stands the length byte of a record; `w` is the number of bytes of an event, 1 for now.
#![tactic(auto)]

ghost use Rattle.std.specs.Prelude.{◌≡◌, ◌+◌, ◌<◌, ◌≤◌, length};
ghost use Rattle.mine_places.specs.Places.{place_at, events_of, Recorded};

// The place that a list has from its byte i on.
pub fn place_at(places: &[u8], i: usize) -> usize
    requires { i + 1 < length places.now }
    ensures { result ≡ place_at places.now i }
{
    u16::from_le_bytes([places[i], places[i + 1]]) as usize
}

// The events of the record at a place, a part of the log from the record's own place.
pub fn events_at(log: &[u8], at: usize, w: usize) -> &[u8]
    requires { (w ≤ 3) × Recorded w log.now at }
    ensures { result.now ≡ events_of w log.now at }
{
    let n = log[at] as usize;
    let from = at + 1;
    let end = from + n * w;
    &log[from..end]
}
