#![tactic(auto)]

// No function stands here. What the customer asked for is said in specs/, of the meaning that the promises of `unit` cite, and proved in proofs/.
