//! Laws of scripts.

ghost use Rattle.vault_protocol.specs.Rows.{Rows};
ghost use Rattle.vault_protocol.specs.ScriptLaws.{PrintedInParts, ScriptsAreRuns, RunsGoOn, StopsAreCrashes, OthersAreActs, CommitsSettle, EndsTold, RepliesAreTold};
ghost use Rattle.vault_protocol.specs.Spelling.{ConnectionAsSpelled};

/// The definitions print what was worked out by hand for these scripts.
pub fn rows_are_printed()
    ensures { Rows }
{}

/// A line of a script is a connection's exactly if it is `@`, the connection's number, a space and what the connection says.
pub fn connection_as_spelled()
    ensures { ConnectionAsSpelled }
{}

/// What a script does to its vault is a run of the world. After each of its lines, and after the commit at its end, some run
/// reaches what is seen of the vault. Each such run goes on to what is seen later. A `!crash` line is one crash, and its pick says
/// whether the gate is open then. Any other line is acts alone. So the laws of runs hold for every script.
pub fn scripts_are_runs()
    ensures runs { ScriptsAreRuns }
    ensures go_on { RunsGoOn }
    ensures stops { StopsAreCrashes }
    ensures others { OthersAreActs }
    ensures in_parts { PrintedInParts }
{}

/// A commit of a script makes all entries durable, and leaves no commit or snapshot under way. Of the view it changes
/// nothing else but the number of sealed entries. So at the end of a script no line waits for a reply.
pub fn commits_settle()
    ensures settle { CommitsSettle }
    ensures told { EndsTold }
{}

/// Beside outside texts a script prints the replies of entries, in the order of the entries, each at most once, and when the entry
/// counts as acknowledged (told). A crash prints none, and the end prints all that are left. After each line exactly the acknowledged
/// entries are dropped. So, by the laws of runs, no reply is printed before its entry is durable, and no entry whose reply was printed
/// is ever lost.
pub fn replies_are_told()
    ensures { RepliesAreTold }
{}
