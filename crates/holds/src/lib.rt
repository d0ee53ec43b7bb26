// Who holds which record, and against which requests.
#![tactic(auto)]
