//! What the rules take out of a group.

ghost use Rattle.std.specs.Prelude.{◌≡◌, option_map};
ghost use Rattle.program_rules.specs.Ruled.{IsRuledGroup, days_for, first_rule};

use crate::reading::Rule;
use kernel_expiring::{AgedGroup, aged_group, since};
use session_lookups::LookUps;
use text_names::Wildmat;

/// What the rules take out of the group at this place, from 0, in rising serial: the first rule whose wildmat matches the
/// group's name decides. By its days, counted up to this moment in seconds since 1970, the articles before the first one that isn't
/// older go, as `aged_group` finds them. Nothing goes by a rule without days, nor where no rule matches.
pub fn ruled_group<L: LookUps>(spool: &L, place: usize, rules: &[Rule], now: u64) -> AgedGroup
    ensures { IsRuledGroup (L.changes spool.now) place rules.now now result }
{
    if place >= spool.group_count() {
        return AgedGroup::Missing;
    }
    let group = spool.group_at(place);
    let Some((wildmat, days)) = days_for(rules, group.name) else {
        return AgedGroup::Spared;
    };
    aged_group(spool, place, wildmat, since(now, days))
}

/// The wildmat and the days of the first rule that matches a name. `None` if no rule does, or if that one has no days.
fn days_for<'r>(rules: &'r [Rule], name: &[u8]) -> Option<(&'r Wildmat, u64)>
    ensures { option_map (λ found. (found.0.now, found.1)) result ≡ days_for rules.now name.now }
{
    let rule = first_rule(rules, name)?;
    let days = rule.days?;
    Some((&rule.wildmat, days))
}

/// The first rule that matches a name.
fn first_rule<'r>(rules: &'r [Rule], name: &[u8]) -> Option<&'r Rule>
    ensures { option_map (λ rule. rule.now) result ≡ first_rule rules.now name.now }
{
    'rules: for place in 0..rules.len() {
        let rule = &rules[place];
        if rule.wildmat.matches_octets(name) {
            return Some(rule);
        }
    }
    None
}
