// The rules by which a message is downgraded: from the spool, current, or for a mailbox.
#![tactic(auto)]

ghost use Rattle.std.specs.Prelude.{◌≡◌};
ghost use Rattle.rules.specs.Rules.{setting_rules, allows_alternative};

#[derive(Clone, Copy, Debug, PartialEq, Eq)]
pub enum Rules {
    Spool,
    Current,
    Mailbox,
}

// The rules that a caller's number asks for.
pub fn of_setting(setting: u64) -> Rules
    ensures { result ≡ setting_rules setting }
{
    Rules::from(setting)
}

impl From<u64> for Rules {
    ghost from_gives = { λ x y. y ≡ setting_rules x };

    fn from(setting: u64) -> Rules {
        if setting == 0 {
            return Rules::Spool;
        }
        Rules::Current
    }
}

// Whether an address may have an alternative, in the envelope and in a field.
pub fn allows_alternative(rules: Rules) -> bool
    ensures { result ≡ allows_alternative rules }
{
    matches!(rules, Rules::Spool)
}
