// The three demands on the exported calls, on a page for each: specs/Demands.antt, specs/BatchDemands.antt and specs/MailboxDemands.antt; and that what
// the calls' contracts equate them with meets them. Crate exported_calls checks the calls against the pages.
#![tactic(auto)]
