// Facts about tests, plain truth values, that the proofs of many crates cite. No layer's definition is named here, and no code stands here.
