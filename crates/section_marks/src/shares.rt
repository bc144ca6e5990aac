// The changes of one train, place by place.
ghost use Rattle.std.specs.Prelude.{◌≡◌, ◌≤◌, ◌<◌, ◌+ℤ◌, ◌≤ℤ◌, pos, length};
ghost use Rattle.std.specs.Result.{result_err};
ghost use Rattle.rail_model.specs.Turns.{unless};
ghost use Rattle.section_marks.specs.Marking.{bad_step, bad_share, place_refusal, train_refusal};

use crate::{MarkRefused, Marks};

// The first change or share of a train that may not be.
pub(crate) fn check_train(
    marks: Marks,
    section: u32,
    train: u32,
    changes: &[i32],
) -> Result<(), MarkRefused>
    requires { length changes.now ≤ 128 }
    ensures { result_err result ≡ train_refusal marks section train (length changes.now) changes.now }
{
    let mut share = 0;
    for (place, change) in changes.iter().enumerate() {
        share = next_share(marks, section, train, place as u32, share, *change)?;
    }
    Ok(())
}

// The share at a place, by the share before and the change.
fn next_share(
    marks: Marks,
    section: u32,
    train: u32,
    place: u32,
    share: i32,
    change: i32,
) -> Result<i32, MarkRefused>
    requires low { pos 0 ≤ℤ share }
    requires high { share ≤ℤ pos 4 }
    ensures { result ≡ unless (place_refusal marks section train place change (share +ℤ change)) (share +ℤ change) }
{
    check_step(marks, section, train, place, change)?;
    let share = share + change;
    check_share(marks, section, train, place, share)?;
    Ok(share)
}

fn check_step(
    marks: Marks,
    section: u32,
    train: u32,
    place: u32,
    value: i32,
) -> Result<(), MarkRefused>
    ensures { result_err result ≡ bad_step marks section train place value }
{
    let most = marks.most_share();
    if value < -most || value > most {
        return Err(MarkRefused::Step {
            section,
            train,
            place,
            value,
        });
    }
    Ok(())
}

fn check_share(
    marks: Marks,
    section: u32,
    train: u32,
    place: u32,
    value: i32,
) -> Result<(), MarkRefused>
    ensures { result_err result ≡ bad_share marks section train place value }
{
    if value < 0 || value > marks.most_share() {
        return Err(MarkRefused::Share {
            section,
            train,
            place,
            value,
        });
    }
    Ok(())
}
