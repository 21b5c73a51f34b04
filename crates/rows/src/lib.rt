// Laws over `rules`, in specs/: searches, a row that is not damaged, a call that is not refused, the free seat.
#![tactic(auto)]
