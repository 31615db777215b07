// The free places of a vector: which they are, what is chosen there, put back there, and rounded there.
#![tactic(auto)]

ghost use Rattle.std.specs.Prelude.{◌≡◌, ◌≤◌, length};
ghost use Rattle.seq.specs.Lists.{tabulate};
ghost use Rattle.seq.specs.Keep.{keep};
ghost use Rattle.seq.specs.Indices.{Pushed, Below};
ghost use Rattle.seq.specs.Marks.{is_set};
ghost use Rattle.places.specs.Places.{picked, put_back, rounded_at};

// The places of the marks that are set, in order, at the front of places; how many.
pub fn free_places(places: &mut [u32], free: &[u32]) -> usize
    requires { (length free.now ≤ length places.old) × (length free.now ≤ 256) }
    ensures { Pushed (keep (is_set free.now) (length free.now)) result places.new }
{
    let mut l = 0usize;
    for (j, mark) in free.iter().enumerate() {
        if *mark == 1 {
            places[l] = j as u32;
            l += 1;
        }
    }
    l
}

// The elements of v at some places.
pub fn choose<T: Copy>(to: &mut [T], v: &[T], places: &[u32])
    requires { (length to.old ≡ length places.now) × Below places.now (length v.now) }
    ensures { (d : T) → to.new ≡ picked d v.now places.now }
{
    for (p, j) in places.iter().enumerate() {
        to[p] = v[*j as usize];
    }
}

// The elements put back at their places.
pub fn put_back<T: Copy>(v: &mut [T], places: &[u32], values: &[T])
    requires { (length values.now ≡ length places.now) × Below places.now (length v.old) }
    ensures { (d : T) → v.new ≡ put_back d places.now values.now v.old (length places.now) }
{
    for (j, value) in places.iter().zip(values) {
        let j = *j as usize;
        v[j] = *value;
    }
}

// The free coordinates rounded, 0 and above to 1.
pub fn round_free(x: &mut [f64], free: &[u32])
    requires { length free.now ≡ length x.old }
    ensures { x.new ≡ tabulate (rounded_at x.old free.now) (length x.old) }
{
    for (p, c) in x.iter_mut().enumerate() {
        if free[p] == 1 {
            *c = if *c >= 0.0 { 1.0 } else { -1.0 };
        }
    }
}
