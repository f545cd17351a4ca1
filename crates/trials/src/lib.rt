// No code: a table of small networks, the theorem that every row of it holds, and what the calls have to answer by it.

#![tactic(auto)]
