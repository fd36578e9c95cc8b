// The filters of a sheet under a mask, defined, and their laws. No filter is run here.
#![tactic(auto)]

// A place of a sheet.
pub mod place;

// Why a filter is refused.
pub mod refusal;

// The calls on a worksheet, and what each answers.
pub mod call;

// Which sheet stands after openings and closings under one mask.
pub mod standing;

// The laws, each as the promise of a call.
pub mod laws;

// Worked examples of the definitions.
pub mod examples;
