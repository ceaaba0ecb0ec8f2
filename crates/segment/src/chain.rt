// Chains of links: definitions in specs/ and laws in proofs/ only.
