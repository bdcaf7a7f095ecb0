//! What a process spends.

ghost use Rattle.std.specs.Prelude.{◌≡◌, ◌+◌, ◌*◌, ◌<◌, ◌^◌};
ghost use Rattle.wf_table.specs.Spent.{spent_after};
ghost use Rattle.wf_table.specs.Bound.{bound};
ghost use Rattle.wf_records.specs.Spending.{outside_more};
ghost use Rattle.wf_table.specs.Ranges.{IsSized};

use wf_table::{Label, Sizes, Spent};

/// A step at the label counts; at NEXT it begins a call or is halted.
#[inline(always)]
pub fn count_step(spent: &mut Spent, label: Label, begins: bool)
    requires bodies { spent.old.bodies + 1 < 2 ^ 128 }
    requires inside { spent.old.inside + 1 < 2 ^ 128 }
    requires outside { spent.old.outside + 1 < 2 ^ 128 }
    ensures { spent.new ≡ spent_after label begins spent.old }
{
    match label {
        Label::Next if begins => {
            *spent = Spent {
                bodies: 0,
                inside: 0,
                outside: 1,
            }
        }
        Label::Next => {}
        Label::Enter => {
            spent.bodies += 1;
            spent.outside += 1;
        }
        Label::Body => spent.inside += 1,
        _ => spent.outside += 1,
    }
}

/// So many steps in a body count.
pub fn count_inside(spent: &mut Spent, count: u64)
    requires { spent.old.inside + count < 2 ^ 128 }
    ensures { spent.new ≡ record spent.old { inside = spent.old.inside + count } }
{
    spent.inside += u128::from(count);
}

/// So many steps outside bodies count.
#[inline]
pub fn count_outside(spent: &mut Spent, count: u64)
    requires { spent.old.outside + count < 2 ^ 128 }
    ensures { spent.new ≡ outside_more spent.old count }
{
    spent.outside += u128::from(count);
}

/// The own steps outside bodies that no call exceeds, in an object of these sizes.
pub fn bound_of(z: Sizes) -> u128
    requires { IsSized z }
    ensures { result ≡ bound z }
{
    let processes = z.processes as u128;
    let variables = z.variables as u128;
    let replies = z.replies as u128;
    let arguments = z.arguments as u128;
    let block = variables + processes * (replies + 2);
    let served = processes * (arguments + 2 * variables + replies + 10);
    2 * (2 * block + served + 10) + arguments + replies + 20
}
