//! What a script may say, explained to a person.

/// The lines of a script.
pub const SCRIPT_HELP: &str = "\
A line is '@K LINE' for a connection K of 1 to 64, and LINE is one of:
  hello NAME            opens a session in a designer's name
  make PATH [CLAIM]     makes a place, as /engine or /engine/block/piston, in a check-out's name if one is given
  nest PATH [CLAIM]     makes an assembly inside an assembly, as /engine/block/pump; paths have up to seven names
  list PATH             lists the places right under one
  checkout ITEM ..      asks for a claim on 1 to 8 items, as r:/engine to look or w:/engine to change
  extend CLAIM ITEM ..  asks for more items for a held claim, as c1
  save CLAIM PART HEX   saves a draft of a part for a held check-out: its bytes in hexadecimal, or - for none
  checkin CLAIM         makes versions of a check-out's drafts, and gives it up
  abandon CLAIM         gives up a check-out, as c1
  give CLAIM NAME       gives a check-out to another designer, with its drafts
  note CLAIM [HEX]      shows the note of a check-out, or sets it: up to 64 bytes
  hold ITEM ..          asks for a claim that ends with the session
  release CLAIM         gives up such a claim, as h1
  state CLAIM           says whether a claim is held, or behind which one it is queued
  wait CLAIM            says the same; a script waits for nobody
  show CLAIM            says whose a claim is, how it stands and what it has
  claims PATH           lists the claims that look at a place or at one under it
  drafts CLAIM          lists the parts of which a check-out of one's own has drafts
  draft CLAIM PART      shows the draft of a part that such a check-out has
  fetch PART VERSION    shows a version of a part, from 1 on
  count PART            says how many versions a part has
  quit                  closes the session
Empty lines and lines that begin with '#' are skipped. '!commit' commits, '!snapshot' begins a snapshot, '!pump' makes one
step of a commit or of a snapshot, and '!crash old', '!crash new' or '!crash HH' stops the machine: what isn't settled is as
it was, as it was written, or this byte.
Example:
  printf '@1 hello anna\\n@1 make /engine\\n@1 checkout w:/engine\\n' | vaultd script
prints
  @1 OK session 1
  @1 OK place 1
  @1 OK held c1";
