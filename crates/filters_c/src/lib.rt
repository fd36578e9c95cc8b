// The filters as calls from C: sheets of rows, each cell as it lies in memory. A call is told the number of its refusal, or 0.
// What the lent cells hold after a call has no clause here, since a holder of lent cells tells nothing of their lender; what the
// holder shows then is promised by the calls within.
#![tactic(auto)]

// What a call is told.
mod told;

// Masks, kept by the caller.
mod mask;

// The filters.
mod calls;
