// What a recipe's draws make, and what the maker owes for a recipe: definitions alone, in specs/.
#![tactic(auto)]
