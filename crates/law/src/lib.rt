// What a run is, and the law of whole runs.
#![tactic(auto)]
