// What stands in a sheet replaced. `head`: a head, what is behind it freed; `offsets`: offsets set anew; `spot`: a text among others.
#![tactic(auto)]

pub mod head;
pub mod offsets;
pub mod spot;
