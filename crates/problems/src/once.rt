// A part of a section that is said once.
ghost use Rattle.std.specs.Prelude.{◌≡◌, is_some};
ghost use Rattle.problems.specs.Outcomes.{once};

// What was read, or a problem: `again` where the part was said before, `wrong` where nothing was read.
pub fn once<T: Copy, E: Copy>(said: Option<T>, read: Option<T>, again: E, wrong: E) -> Result<T, E>
    ensures { result ≡ once (is_some said) read again wrong }
{
    if said.is_some() {
        return Err(again);
    }
    read.ok_or(wrong)
}
