// The conflict groups of a table: whether each has the form, and the check of them: whether who holds a label's tags keeps to each, and at
// which the check ended. Their tags stand in one array and their numbers in another.
#![tactic(auto)]

ghost use Rattle.std.specs.Prelude.{◌≡◌, take};
ghost use Rattle.std.specs.List.{list_all};
ghost use Rattle.label.specs.Tags.{group_formed};
ghost use Rattle.label.specs.Words.{words};
ghost use Rattle.groups.specs.Check.{checked};
ghost use Rattle.groups.specs.Groups.{with_numbers};

use label::{Group, Label};

// What a check gives back: whether each group is kept, and how many were counted: the place of the first that is broken, from 1, or the
// number of groups where none is.
#[derive(Clone, Copy)]
pub struct Checked {
    pub keeps: bool,
    pub counted: usize,
}

// Whether each of the first `count` groups has the form, of all where there are fewer.
pub fn are_formed(groups: &[Label], most: &[u8], count: usize) -> bool
    ensures { result ≡ list_all group_formed (take count (with_numbers groups.now most.now)) }
{
    for (set, number) in handing::front(groups, count).iter().zip(most) {
        let group = Group {
            tags: *set,
            most: *number,
        };
        if !label::group_formed(group) {
            return false;
        }
    }
    true
}

// The check of the first `count` groups, of all where there are fewer, for who holds the tags of `held`. It ends at the first that is
// broken.
pub fn check(groups: &[Label], most: &[u8], count: usize, held: Label) -> Checked
    ensures { result ≡ checked words (take count (with_numbers groups.now most.now)) held }
{
    let mut counted = 0;
    for (tags, number) in handing::front(groups, count).iter().zip(most) {
        counted += 1;
        let group = Group {
            tags: *tags,
            most: *number,
        };
        if !label::keeps(group, held) {
            return Checked {
                keeps: false,
                counted,
            };
        }
    }
    Checked {
        keeps: true,
        counted,
    }
}
