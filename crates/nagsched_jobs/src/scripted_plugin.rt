//! The plugin of a drill: it checks nothing, and returns the codes that its script gives.

ghost use Rattle.std.specs.Prelude.{◌≡◌, map};
ghost use Rattle.nagsched_jobs.specs.ScriptedCodes.{code_of_run, scripted_code};

use check_states::Code;
use check_workers::Plugin;

/// A plugin that returns the codes of a script, at any moment.
#[derive(Drop)]
pub struct ScriptedPlugin {
    /// The return codes of each object, by the object's number, in the order of its runs.
    pub codes: Vec<Vec<Code>>,
}

impl ScriptedPlugin {
    /// The code that the check of the object returns under the number `run`. Run 1 returns the first of
    /// the object's codes, run 2 the second, and after the last code the first comes again. It is `Ok`
    /// for run 0, which no check has, for an object without codes, and for a number that no object has.
    pub fn code(&self, object: u32, run: u64) -> Code
        ensures { result ≡
            scripted_code (map (λ list. list.items) self.now.codes.items) object run }
    {
        match self.codes.get(object as usize) {
            Some(codes) => code_of_run(codes, run),
            None => Code::Ok,
        }
    }
}

impl Plugin for ScriptedPlugin {
    ghost use Rattle.std.specs.Prelude.{map};
    ghost use Rattle.nagsched_jobs.specs.Drill.{returns_scripted};

    ghost allows = { λ s. returns_scripted (map (λ list. list.items) s.codes.items) };

    fn check(&self, object: u32, run: u64, _now: u64) -> Code {
        self.code(object, run)
    }
}

/// The code of a run over the codes of one object.
fn code_of_run(codes: &[Code], run: u64) -> Code
    ensures { result ≡ code_of_run codes.now run }
{
    if codes.is_empty() || run == 0 {
        return Code::Ok;
    }
    let place = (run - 1) % codes.len() as u64;
    codes[place as usize]
}
