// The call create: planned first, then tidied and written at one place, so that a refusal cannot have written.

#![tactic(auto)]

ghost use Rattle.rules.specs.Fields.{signed_of};
ghost use Rattle.contracts.specs.Promises.{Creates};
ghost use Rattle.placing.specs.Site.{new_of};
ghost use Rattle.refusals.specs.View.{answer_of};

use placing::New;
use refusals::Refusal;

// What is new.
pub fn create(img: &mut [u8], new: New) -> Result<(), Refusal>
    ensures { Creates img.old (new_of new.entry.made) new.entry.path.now (signed_of new.entry.stamp) (answer_of result) img.new }
{
    let p = planning::plan_create(img, new)?;
    tidying::tidy(img, p.old);
    placing::place(img, p, new);
    Ok(())
}
