#![tactic(auto)]

// Laws that every crate above shares. They stand in specs/; there is no code here.
