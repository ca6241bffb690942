// The Downgraded fields that we write, as the reader reads them: laws only (specs/).
#![tactic(auto)]
