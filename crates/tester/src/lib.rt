// The C face of the workshop tester: `include/punnetcrest_tester.h` has the prototype and says what the call does.
//
// For a tester's program in C. The call takes lent numbers and returns document 02's refusal number, 0 where there is none. It is thin over
// the monitor's own step and has its whole contract, in numbers. It has no `requires`: every number and state is answered, and specs/ says
// what the call returns and leaves, for every input. Assumes nothing of its own.
#![tactic(auto)]

mod following;
