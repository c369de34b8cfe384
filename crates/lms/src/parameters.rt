// What the type numbers of a key stand for.
ghost use Rattle.std.specs.Prelude.{◌≡◌, option_map};
ghost use Rattle.lms.specs.Ots.{table1};
ghost use Rattle.lms.specs.Tree.{table2};
ghost use Rattle.lms.specs.Types.{row};
ghost use Rattle.lms.specs.Lengths.{possible_length};

use crate::chains::Chains;

// The row of table 1 for a one-time signature type, if the table has it.
#[tactic(auto, unfolding(crate::specs::Ots::table1))]
pub fn ots_type(number: u32) -> Option<Chains>
    ensures { option_map row result ≡ table1 number }
{
    match number {
        3 => Some(Chains { w: 4, p: 67, ls: 4 }),
        4 => Some(Chains { w: 8, p: 34, ls: 0 }),
        _ => None,
    }
}

// The height of a tree type, if table 2 has it.
#[tactic(auto, unfolding(crate::specs::Tree::table2))]
pub fn tree_type(number: u32) -> Option<usize>
    ensures { result ≡ table2 number }
{
    match number {
        5..=9 => Some(5 * (number as usize - 4)),
        _ => None,
    }
}

// Whether a signature of some types has so many bytes: those with one-time type 4 and trees of height 5, 10, 15, 20, 25, then those with type 3.
#[tactic(auto, unfolding(crate::specs::Ots::table1, crate::specs::Tree::table2, crate::specs::Lengths::of_types, crate::specs::Lengths::of_ots, crate::specs::Lengths::possible_length))]
pub fn possible_len(len: usize) -> bool
    ensures { result ≡ possible_length len }
{
    matches!(
        len,
        1292 | 1452 | 1612 | 1772 | 1932 | 2348 | 2508 | 2668 | 2828 | 2988
    )
}
