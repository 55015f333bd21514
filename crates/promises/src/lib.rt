// What the driver promises of every run and to any caller. All of it is in specs/, as statements about `session`; there is no code.
#![tactic(auto)]
