// Laws of runs, each the contract of a function.

ghost use Rattle.sys_world.specs.Laws.{TranscriptsEnd};

/// The last line of each transcript is `end`.
pub fn transcripts_end()
    ensures { TranscriptsEnd }
{}
