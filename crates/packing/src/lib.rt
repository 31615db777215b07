// The weights that are not 0, packed: the numbers of their columns and they themselves at the front of two lists.
#![tactic(auto)]

ghost use Rattle.std.specs.Prelude.{◌≡◌, ◌≤◌, length};
ghost use Rattle.packing.specs.Packed.{Packed};

use places::choose;
use ranking::support_into;
use seq::fill;

// Packs the weights w. Both lists are as long as w.
pub fn pack(columns: &mut [u32], kept: &mut [f64], w: &[f64])
    requires { (length columns.old ≡ length w.now) × (length kept.old ≡ length w.now) × (length w.now ≤ 256) }
    ensures { Packed w.now columns.new kept.new }
{
    let s = support_into(columns, w);
    fill(&mut columns[s..], 0);
    choose(&mut kept[..s], w, &columns[..s]);
    fill(&mut kept[s..], 0.0);
}
